// What a chooser is shown of a step that is to be placed.
#[derive(Clone, Copy)]
pub struct Shown<'a> {
    pub step: u8,
    // Hours that the step takes.
    pub duration: u16,
    // The window: the hours from first to last at which the step may start.
    pub first: u16,
    pub last: u16,
    // Brews follow each other at a fixed distance, the period, so hours count modulo the period: such a rest is a class.
    // There is a count for each class: how many steps that share the step's kind of vessel cover it already.
    pub crowd: &'a [u8],
}
