mod asked;
mod made;
mod paths;
mod text_memberships;
mod texts;
