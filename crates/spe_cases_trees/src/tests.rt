mod calls;
mod chains;
mod faults;
mod files;
mod long;
mod schema;
mod space;
mod tables;
