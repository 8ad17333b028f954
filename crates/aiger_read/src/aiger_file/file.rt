//! A file as its records.

use crate::aiger_file::symbol::Named;
use crate::aiger_records::{Header, Records};

/// The records of a file, each in its order.
pub struct AigerFile {
    pub header: Header,
    pub records: Records,
    pub symbols: Named,
}

/// It is let go by one call: an owner isn't taken apart field by field at each way out.
impl Drop for AigerFile {
    fn drop(self) {
        let AigerFile {
            header: _,
            records: _,
            symbols: _,
        } = self;
    }
}
