// The calls for C hosts. A slice passes as a pointer and then a length; answers are structs of numbers, by value.
#![tactic(auto)]

mod answer;
mod calls;
mod version;

pub use answer::Answer;
pub use calls::{
    terkwabu_graph, terkwabu_judge, terkwabu_pair, terkwabu_part, terkwabu_place, terkwabu_reduce,
    terkwabu_refusal_line,
};
pub use version::terkwabu_version;
