mod read_only;
mod shared;
mod space;
