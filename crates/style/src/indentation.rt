// The indentation of a style: one byte, and how often it stands for each record around a tag.
// Any byte and any size can be given here: `Style::new` judges them, under refusal 10.
#[derive(Clone, Copy, PartialEq, Eq, Debug)]
pub struct Indentation {
    pub byte: u8,
    pub size: usize,
}
