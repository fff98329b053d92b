//! The rule, and what each step tells.
ghost use Rattle.std.specs.Prelude.{◌≡◌};
ghost use Rattle.sdd_part_examples.specs.CountedOwners.{Kept, first, blank, one_owner, a_ledger, pledging, freeing, made, gone, cut, founded, remaining, newcomer, regained};

use crate::counted_owners::views::View;
use atomic_table::{Join, Play, Split, TableRule};
use sdd_witness::Books;

pub struct Rule;

impl TableRule<(), View, ()> for Rule {
    ghost holds = { λ _ s. Kept s };

    ghost first = { λ _. first };
}

pub struct Pledges;

impl Books<View> for Pledges {
    ghost ours = { λ b. b.ledger ≡ 1 };

    ghost booked = { λ b. b.books };

    ghost pledging = { pledging };

    ghost freeing = { freeing };
}

pub struct Make;

impl Play<(), View> for Make {
    ghost then = { λ _ me _ after. after ≡ (made me.0, me.1) };
}

pub struct Leave;

impl Play<(), View> for Leave {
    ghost then = { λ _ me n after. after ≡ (gone n me.0, me.1) };
}

pub struct Cut;

impl Split<View> for Cut {
    ghost left = { cut };

    ghost right = { λ _. one_owner };
}

pub struct Found;

impl Split<View> for Found {
    ghost left = { founded };

    ghost right = { λ _. a_ledger };
}

pub struct TakeIn;

impl Join<View> for TakeIn {
    ghost both = { λ v _. regained v };

    ghost spent = { blank };
}

pub struct Half;

impl Split<View> for Half {
    ghost left = { remaining };

    ghost right = { newcomer };
}
