//! What a world is, what each call makes of one, and what is always true of it: definitions and lemmas alone, which know no owner, guard or cell of a program.
#![tactic(auto)]
