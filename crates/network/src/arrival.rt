/// How far a message is: it has not arrived yet; it has, and may again; or it is no longer under way.
#[derive(Clone, Copy, PartialEq, Eq, Debug)]
pub enum Arrival {
    NotYet,
    Again,
    Over,
}
