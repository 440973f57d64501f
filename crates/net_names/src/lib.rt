//! The plain values of routing and their texts: AS numbers, relations and links of ASes, addresses,
//! prefixes and payloads of both families, paths, and the lines of a file that count.
//!
//! Each type keeps its range by itself. A text has at most one value, and a value has one text,
//! which is what the `put_` calls append. `Links` is a finite map with at most 1,500,000 links.
#![tactic(auto)]

mod addresses;
mod coverage;
mod dealing;
mod digits;
mod hints;
mod limits;
mod lines;
mod links;
mod numbers;
mod payloads;
mod prefixes;
mod reading;
mod routes;
mod writing;

pub use addresses::{Addr, Family};
pub use coverage::{covers, holds};
pub use dealing::{Numbered, deal_by_number};
pub use digits::{Digits, read_digits};
pub use hints::{NumberGroups, place_at};
pub use limits::{MOST_IN_PATH, MOST_LIST_BYTES, MOST_TEXT_BYTES};
pub use lines::{KeptLine, LineByLine, next_kept, put_lines};
pub use links::{Link, Links, LinksError, MOST_LINKS};
pub use numbers::{Asn, NoMemory, Path};
pub use payloads::Vrp;
pub use prefixes::Prefix;
pub use reading::{cut, number, read_addr, read_asn, read_class, read_prefix, read_vrp_asn, strip};
pub use routes::{Class, Rel, State};
pub use writing::{
    put_addr, put_asn, put_bytes, put_number, put_prefix, texts_are_read_again, v4_has_one_text,
    v6_has_one_text,
};
