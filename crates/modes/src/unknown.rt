// A number that names nothing of the kind asked for.
#[derive(Clone, Copy, PartialEq, Eq, Debug)]
pub struct UnknownNumber;
