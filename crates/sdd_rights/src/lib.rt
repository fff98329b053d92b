//! Tokens by which an owner of a slot shows its value. They take no bytes, and exist for proofs alone.
//!
//! - A [`GhostKeys`] is the supply of one space, as a world or a domain: it issues the numbers 0, 1, 2 and so on, each once. The name of a ghost map is its
//!   *home*, which also says for how many numbers the ghost map is meant.
//! - A *number* names one slot of the space. It has [`WHOLE`] *units*. `GhostKeys::issue` gives all of them, as one [`Fraction`].
//! - A `Fraction` is some units of one number, at least one of them. Fractions split and join, and no unit is ever copied.
//! - All units of a number agree on three things. The *kind* says how the slot stands, as free or owned. What is *shown* is the code of the slot's
//!   value. The *lifetime* is that of one use of the slot, whose token the fractions hold between them.
//! - `Fraction::set` changes the kind and what is shown, and asks for all units. So nobody's kind and value change while another has a unit.
//!
//! Who keeps what: the space keeps at least one unit of each number beside what it knows of the slot, and owners have the others. When an owner
//! comes back, `Fraction::agree` behind two `&` says that both know the same. So a space that holds a slot to be free contradicts an owner of that
//! slot, and the space needs no test at run time.
//!
//! [`RightsAuthority`] are the fractions that a space keeps of its numbers. It grants a [`Right`] to a number and takes it back: the one owner of a
//! number has all its units but one, and each of several owners a single one. [`SharedRights`] are the rights of several
//! owners in one piece.
//!
//! In a domain there is no ghost map of the slots. A right there has a witness, the seat of the slot's owner in the domain's table, which tells what the
//! slot shows and whether its owner is one of several, and a [`ReadFraction`], one unit of the number of the value's place, by which the owner looks at the
//! value ([`Right::of_witness`]).
//!
//! What a witness and a participant know of a domain is a record of [`views`].
//!
//! No type here names the type of the values, since a value may have owners within it: only `shown` ties a fraction to a value, and `Fraction::same` turns
//! two equal codes into two equal values.
#![tactic(auto)]

mod fraction;
mod read_fraction;
mod right;
mod rights;
pub mod views;

pub use fraction::{Fraction, GhostKeys, WHOLE};
pub use read_fraction::ReadFraction;
pub use right::{NameWitness, RawRight, Right, SharedRights, StandingKind};
pub use rights::RightsAuthority;
