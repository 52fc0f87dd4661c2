//! What `predicates_path` gives.
mod call_counts;
mod derives;
mod flags;
mod helpers;
mod long_contents;
mod parts;
mod refused_files;
mod sizes;
mod taken_from_disk;
