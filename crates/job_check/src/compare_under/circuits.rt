//! What is compared.

use base_tables::NameTable;
use flat_net::Net;
use sec_setup::Nets;

/// Two circuits, a third that is assumed of their inputs, and the names of the inputs that the two share.
#[derive(Clone, Copy)]
pub(crate) struct Circuits<'a> {
    pub nets: Nets<'a>,
    pub assumed: &'a Net,
    pub shared: &'a NameTable,
}
