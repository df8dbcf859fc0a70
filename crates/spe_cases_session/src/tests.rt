mod begin;
mod disk;
mod endings;
mod rows;
