// What holds of a writer and its sink by the calls that led to them, however those were made: in a run or one by one.
ghost use Rattle.writer.specs.Histories.{HistoryBegins, HistoryBeginsIdle, HistoryGrows, HistoryGrowsAside, HistoriesHaveLaws};

/// A history begins at a new or an idle writer and an empty sink, and grows by the promise of each call, so that calls made one by one are
/// a run; and whatever calls led to a writer and a sink, the laws of runs hold of what the sink then holds.
// No code in it, since a contract is what names a theorem.
pub fn law_histories()
    ensures begins { HistoryBegins }
    ensures begins_idle { HistoryBeginsIdle }
    ensures grows { HistoryGrows }
    ensures grows_aside { HistoryGrowsAside }
    ensures laws { HistoriesHaveLaws }
{}
