ghost use Rattle.std.specs.Prelude.{◌≡◌, ◌*◌, ◌≤◌, length};
ghost use Rattle.book.specs.Limits.{header_size, record_size, most_events};

use crate::event::Event;
use crate::header::Header;
use crate::limits::{EVENT, HEADER, MOST_EVENTS, RECORD};
use crate::reason::BookReason;
use kinds::KindOfShare;

/// A tenancy book that was opened: what its header says, and its two arrays, which are lent from its bytes.
#[derive(Clone, Copy, Debug, Drop)]
pub struct Book<'a> {
    pub header: Header,
    /// a byte for each event
    pub codes: &'a [u8],
    /// a record for each event
    pub records: &'a [u8],
    ghost few: { header.events ≤ most_events },
    ghost coded: { length codes.now ≡ header.events },
    ghost recorded: { length records.now ≡ record_size * header.events },
}

impl<'a> Book<'a> {
    ghost use Rattle.std.specs.Prelude.{◌+◌, IfOk, IfSome};
    ghost use Rattle.book.specs.Books.{opening, header_or_number, book_bytes, event_in, event_parts};
    ghost use Rattle.book.specs.Places.{further};

    /// Opens a book, or refuses its bytes by the first rule that they break. A book that opens is all of its bytes, and
    /// its two arrays are those very parts of them.
    pub fn open(bytes: &'a [u8]) -> Result<Book<'a>, BookReason>
        ensures is { header_or_number result ≡ opening bytes.now }
        ensures whole { IfOk result (λ book. book_bytes book ≡ bytes.now) }
        ensures codes { IfOk result (λ book. book.codes.ref_ptr ≡ further bytes.entry.ref_ptr header_size) }
        ensures records { IfOk result (λ book. book.records.ref_ptr ≡ further book.codes.ref_ptr book.header.events) }
    {
        let [n0, n1, kind, chain, t0, t1, z0, z1, rest @ ..] = bytes else {
            return Err(BookReason::TooShort);
        };
        let events = u16::from_le_bytes([*n0, *n1]);
        if events > MOST_EVENTS {
            return Err(BookReason::TooManyEvents);
        }
        let kind = KindOfShare::of_byte(*kind).ok_or(BookReason::NoSuchKind)?;
        if *z0 != 0 || *z1 != 0 {
            return Err(BookReason::NotZero);
        }
        let count = usize::from(events);
        if rest.len() != EVENT * count {
            return Err(BookReason::WrongLength);
        }
        let codes = &rest[..count];
        let records = &rest[count..];
        let header = Header {
            events,
            kind,
            chain: *chain,
            term: u16::from_le_bytes([*t0, *t1]),
        };
        Ok(Book {
            header,
            codes,
            records,
        })
    }

    /// Event i of the book, from 0, if there are so many: its record is that very part of the book.
    #[tactic(auto, using(crate::proofs::Parts::event_at))]
    pub fn event(&self, i: usize) -> Option<Event<'a>>
        ensures is { event_parts result ≡ event_in (book_bytes self.now) i }
        ensures place { IfSome result (λ event. event.bytes.ref_ptr ≡ further self.now.records.ref_ptr (record_size * i)) }
    {
        let code = *self.codes.get(i)?;
        let first = RECORD * i;
        let bytes = &self.records[first..first + RECORD];
        Some(Event { code, bytes })
    }
}
