// Texts in memory that several readers read.
ghost use Rattle.std.specs.Prelude.{◌≡◌, IfSome};
ghost use Rattle.rdlpp_source.specs.SharedText.{text_bytes};

use std::alloc::Global;
use std::rc::Rc;

/// A text that those who read it share.
#[derive(Drop)]
pub enum SharedText {
    /// One that belongs to them together.
    Owned(Rc<Vec<u8>, Global>),
    /// One that stands elsewhere for as long as anybody may read it.
    Lent(&'static [u8]),
}

impl SharedText {
    /// Its bytes.
    pub fn bytes(&self) -> &[u8]
        ensures { result.now ≡ text_bytes self.now }
    {
        match self {
            SharedText::Owned(text) => text.as_ref().as_slice(),
            SharedText::Lent(text) => text,
        }
    }

    // The same text for a further reader, if there is room for one.
    pub(crate) fn share(&self) -> Option<SharedText>
        ensures { IfSome result (λ made. text_bytes made ≡ text_bytes self.now) }
    {
        match self {
            SharedText::Owned(text) => match text.clone() {
                Ok(text) => Some(SharedText::Owned(text)),
                Err(_) => None,
            },
            SharedText::Lent(text) => Some(SharedText::Lent(text)),
        }
    }
}
