//! What `predicates_text` gives.
mod case_folding;
mod counts_of_short_texts;
mod derives;
mod patterns;
mod places;
mod white_space;
