// Why telling machines apart is refused.
#[derive(Clone, Copy, Debug, PartialEq, Eq)]
pub enum Refusal {
    // A machine does not exist.
    NoSuchMachine,
    // The lent list has fewer places than there are machines.
    ListTooShort,
}
