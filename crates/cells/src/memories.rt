// The three memories that a host lends, to look at: the state, the token memory and the memory of lines.
#[derive(Clone, Copy)]
pub struct Memories<'a> {
    pub state: &'a [u32],
    pub tokens: &'a [u16],
    pub lines: &'a [u16],
}
