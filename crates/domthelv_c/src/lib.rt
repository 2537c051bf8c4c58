// What C calls: the functions of domthelv under their names, each with the clauses that it has there. The C interface asks for the names and the parameters; an archive exports what its own crate has, so each is a function here.
#![tactic(auto)]

mod card_writing;
mod cards;
mod desks;
mod ends;
mod functions;
mod mie;
mod pressure;
mod quantum;
mod tank;
