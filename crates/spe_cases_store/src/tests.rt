mod begin;
mod commit;
mod disk;
mod rows;
