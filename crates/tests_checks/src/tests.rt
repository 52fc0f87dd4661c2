mod checks;
mod contexts;
mod folders;
mod json;
mod made;
mod orders;
