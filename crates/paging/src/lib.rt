// The paging of programs: which pages are resident and which are saved, and how often they came and went.
//
// It stands on `tnk_base` for the keys of pages, and has no code. It defines what touching, needing, evicting and dropping a
// page does to the two lists and the four counts (specs/Pages.antt), for all crates that keep pages or speak of them. `laws`
// says what holds of these definitions: the two lists stay within their greatest lengths, no key comes to stand twice in one,
// and the counts of a worked case.
#![tactic(auto)]

pub mod laws;
