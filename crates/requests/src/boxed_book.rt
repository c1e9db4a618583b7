//! A book in the gate.
ghost use Rattle.std.specs.Prelude.{◌≡◌, IfOk, IfErr};

use book::{Book, Fault};
use gate::Follows;
use std::alloc::Global;

/// A book, behind one pointer, so that the gate moves few bytes. Another book may follow it if it
/// records what this one records: the same acts, or those with one more.
#[derive(Drop)]
pub struct BoxedBook(pub Box<Book, Global>);

impl Follows for BoxedBook {
    ghost use Rattle.requests.specs.Between.{MayFollow};

    ghost follows = { λ a b. MayFollow a.0.value b.0.value };
}

impl BoxedBook {
    /// A book behind a pointer. The only fault is `NoMemory`.
    pub fn boxed(alloc: Global, book: Book) -> Result<BoxedBook, Fault>
        ensures ok { IfOk result (λ k. k.0.value ≡ book) }
        ensures err { IfErr result (λ e. e ≡ Fault.NoMemory) }
    {
        match Box::new(alloc, book) {
            Ok(book) => Ok(BoxedBook(book)),
            Err(_) => Err(Fault::NoMemory),
        }
    }
}
