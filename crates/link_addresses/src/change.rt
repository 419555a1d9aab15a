use crate::meaning::Meaning;
use linx_base::Inc;

/// A change of the meaning of one address.
#[derive(Clone, Copy)]
pub(crate) struct Change {
    /// The place of the address; 0 is that of address 1.
    pub(crate) place: usize,
    /// What it meant; `None` where the list ended before it.
    pub(crate) former: Option<Meaning>,
    /// The incarnation that it is given to, or was of.
    pub(crate) inc: Inc,
}
