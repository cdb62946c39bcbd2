mod long;
mod refusals;
mod spellings;
