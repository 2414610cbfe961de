//! The requests of a listing, and which one comes behind another.

use ov_base::{Memory, Octets};
use ov_wire::kinds;

/// A request of a listing.
#[derive(Clone, Copy)]
pub enum Spot {
    /// The page of this number.
    Page { part: u8, number: u32 },
    /// The list of the file of which this page came, counted among those that came.
    List { place: usize },
}

impl Spot {
    /// The request behind this one.
    pub fn next(self) -> Spot {
        match self {
            Spot::Page { part, number } => Spot::Page {
                part,
                number: number.saturating_add(1),
            },
            Spot::List { place } => Spot::List {
                place: place.saturating_add(1),
            },
        }
    }
}

/// Appends a frame behind its length field.
pub fn put_framed(frame: &[u8], bytes: &mut Vec<u8>) -> Result<(), Memory> {
    let Ok(length) = u32::try_from(frame.len()) else {
        return Err(Memory);
    };
    bytes.extend_from_slice(&length.to_be_bytes())?;
    bytes.extend_from_slice(frame)?;
    Ok(())
}

/// Whether this is the request of that place, where these are the requests for lists.
pub fn is_at(lists: &[Octets], spot: Spot, request: &[u8]) -> bool {
    match (spot, request) {
        (Spot::Page { part, number }, [kind, of, a, b, c, d]) => {
            *kind == kinds::PAGE && *of == part && u32::from_be_bytes([*a, *b, *c, *d]) == number
        }
        (Spot::List { place }, _) => match lists.get(place) {
            Some(list) => list.as_slice() == request,
            None => false,
        },
        _ => false,
    }
}

/// The place of a request, where it is one of a listing.
pub fn spot_of(lists: &[Octets], request: &[u8]) -> Option<Spot> {
    match request {
        [kind, part, a, b, c, d] if *kind == kinds::PAGE => Some(Spot::Page {
            part: *part,
            number: u32::from_be_bytes([*a, *b, *c, *d]),
        }),
        [kind, ..] if *kind == kinds::LIST => {
            let place = lists.iter().position(|list| list.as_slice() == request)?;
            Some(Spot::List { place })
        }
        _ => None,
    }
}

/// Appends the request of a place, where there is one, and says whether.
pub fn put_at(lists: &[Octets], spot: Spot, bytes: &mut Vec<u8>) -> Result<bool, Memory> {
    match spot {
        Spot::Page { part, number } => {
            let [a, b, c, d] = number.to_be_bytes();
            put_framed(&[kinds::PAGE, part, a, b, c, d], bytes)?;
            Ok(true)
        }
        Spot::List { place } => match lists.get(place) {
            Some(list) => {
                put_framed(list.as_slice(), bytes)?;
                Ok(true)
            }
            None => Ok(false),
        },
    }
}
