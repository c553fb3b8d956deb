// The public face for programs in other languages, as C calls it: the functions of `bep`, each under its name.
#![tactic(auto)]

mod feeding;
mod hashing;
mod outline;
mod outstanding;
mod read;
mod reasons;
mod requests;
mod ruling;
mod tables;
mod turning;
mod write;
