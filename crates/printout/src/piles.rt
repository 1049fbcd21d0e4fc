ghost use Rattle.std.specs.Prelude.{◌≡◌, ◌++◌, IfOk, OnOk};
ghost use Rattle.lending.specs.Layers.{pile};
ghost use Rattle.pile.specs.House.{house_layers, PiledOn};
ghost use Rattle.book.specs.Numbers.{book_reason_number};
ghost use Rattle.printout.specs.Printouts.{contents};
ghost use Rattle.printout.specs.Readable.{IsReadable};
ghost use Rattle.printout.specs.Contents.{contents_unopened, printout_bytes};
ghost use Rattle.printout.specs.Tenancy.{book_layers, contents_in, tenancy_contents, tenancy_printout, OnePrintout};
ghost use Rattle.printout.specs.Tenancy.{ConservedIn, TenancyConserved};

use crate::append::add_refusal;
use crate::books::print_book;
use book::{Book, BookReason, Header};
use chain::Chain;
use kinds::{of_kind, *};
use layer::Layer;
use ledger::Ledger;
use lending::{Lease, MOST_ROWS, lending_is_conserved};
use office::{Office, Piled};
use pile::house_pile;
use quota::Quota;
use shares::Printed;
use std::alloc::{AllocError, Global};
use term::Term;

// Quota's number in the office that a book is replayed in.
const QUOTA: u16 = 64;

/// The printout of a book, replayed in a new office of its own kind of share: Quota on Term on Chain on a ledger.
#[tactic(auto, using(crate::proofs::Backs::one_printout))]
pub fn tenancy(alloc: Global, book: &[u8]) -> Result<Vec<u8>, AllocError>
    ensures prints { IfOk result (λ printout. printout.items ≡ tenancy_printout book.now) }
    ensures readable { OnOk result (IsReadable (tenancy_contents book.now)) }
    ensures one_printout { OnePrintout }
    ensures conserved { TenancyConserved book.now }
{
    match Book::open(book) {
        Ok(Book { header, .. }) => of_kind!(header.kind, print_new(alloc, header, book)),
        Err(reason) => print_unopened(alloc, reason),
    }
}

// The printout of a book that doesn't open.
fn print_unopened(alloc: Global, reason: BookReason) -> Result<Vec<u8>, AllocError>
    ensures prints { IfOk result (λ printout. printout.items ≡ printout_bytes (contents_unopened
        (book_reason_number reason))) }
    ensures readable { OnOk result (IsReadable (contents_unopened (book_reason_number reason))) }
{
    let mut out = Vec::new(alloc);
    add_refusal(&mut out, reason.into())?;
    Ok(out)
}

// The printout over a new ledger.
fn print_new<S: Printed>(alloc: Global, header: Header, book: &[u8]) -> Result<Vec<u8>, AllocError>
    ensures prints { IfOk result (λ printout. printout.items ≡ printout_bytes (contents_in header S.kind S.text
        book.now)) }
    ensures readable { OnOk result (IsReadable (contents_in header S.kind S.text book.now)) }
    ensures conserved { ConservedIn header S.kind book.now }
{
    lending_is_conserved::<S>();
    let free = Lease::<S>::free();
    let mut rows = vec![in alloc; free; MOST_ROWS]?;
    print_over(alloc, Ledger::new(rows.as_mut_slice()), header, book)
}

// The printout over the three layers on an office.
fn print_over<O: Piled + Drop>(
    alloc: Global,
    below: O,
    header: Header,
    book: &[u8],
) -> Result<Vec<u8>, AllocError>
where
    O::Kind: Printed,
    ensures prints { IfOk result (λ printout. printout.items ≡ printout_bytes (contents O.Kind.kind
        (book_layers header ++ O.layers below) O.Kind.text book.now (pile (book_layers header) (O.meaning below)))) }
    ensures readable { OnOk result (IsReadable (contents O.Kind.kind (book_layers header ++ O.layers below) O.Kind.text
        book.now (pile (book_layers header) (O.meaning below)))) }
{
    let mut office = book_pile(below, header.term, u16::from(header.chain));
    let mut faults = Vec::new(alloc);
    let mut out = Vec::new(alloc);
    print_book(&mut office, book, &mut faults, &mut out)?;
    Ok(out)
}

// The layers of a book's office over another, by the numbers in its header.
fn book_pile<O: Office>(
    below: O,
    term: u16,
    chain: u16,
) -> Layer<Layer<Layer<O, Chain>, Term>, Quota>
    ensures piled { PiledOn ⟦<Layer<Layer<Layer<O, Chain>, Term>, Quota> as Office>⟧ O.Office
        (house_layers 64 term chain) result below }
{
    house_pile(below, QUOTA, term, chain)
}
