//! The rules of a tree in memory: what each call, edit and line is answered and what it leaves, and what follows of
//! that. There is no code here.
#![tactic(auto)]
