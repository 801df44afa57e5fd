// Sessions that derive over graphs of every kind, with the toy tools.
mod depths;
mod failing;
mod graphs;
mod includes;
mod lists;
mod parameters;
mod project;
mod rows;
mod runs;
mod scripts;
