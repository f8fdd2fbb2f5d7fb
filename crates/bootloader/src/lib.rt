// The calls from C, for a pump's bootloader: a request, a host's answer and a recovery, each on rows alone. A program in C hands
// over numbers and rows one by one: so each call takes a list of them, and so does what is behind it. Each returns its
// status as a number, since a program in C takes no `Result`.

#![tactic(auto)]

pub mod answering;
pub mod asking;
mod looking_up;
pub mod recovering;
mod status;

pub use answering::visordate_answer;
pub use asking::visordate_request;
pub use recovering::visordate_recover;
