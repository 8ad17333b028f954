//! Classes and their members.

ghost use Rattle.std.specs.Prelude.{◌≡◌, [], ◌∷◌, ◌++◌, OnOk, OnErr};

use crate::compare::Enable;
use event_nodes::event_variables::{NoMemory, Tag};
use std::alloc::Global;

/// A class besides `always`: of each enable that a member has the first such member, in the order in which they joined.
pub struct Class {
    /// The latches.
    pub tags: Vec<Tag>,
    /// Their enables.
    pub enables: Vec<Enable>,
}

/// It is let go by one call: an owner isn't taken apart field by field at each way out.
impl Drop for Class {
    fn drop(self) {
        let Class {
            tags: _,
            enables: _,
        } = self;
    }
}

impl Class {
    /// Without members.
    pub fn new(alloc: Global) -> Class
        ensures tags { result.tags.items ≡ [] }
        ensures enables { result.enables.items ≡ [] }
    {
        Class {
            tags: Vec::new(alloc),
            enables: Vec::new(alloc),
        }
    }

    /// Puts a member behind the others. After `NoMemory` the class has the members that it had.
    pub fn join(&mut self, tag: Tag, enable: Enable) -> Result<(), NoMemory>
        ensures tags { OnOk result (self.new.tags.items ≡ self.old.tags.items ++ tag ∷ []) }
        ensures enables { OnOk result (self.new.enables.items ≡ self.old.enables.items ++ enable ∷ []) }
        ensures refused { OnErr result ((self.new.tags.items ≡ self.old.tags.items) × (self.new.enables.items ≡ self.old.enables.items)) }
    {
        self.tags.push(tag)?;
        if let Err(error) = self.enables.push(enable) {
            self.tags.pop();
            return Err(error.into());
        }
        Ok(())
    }
}
