mod chains;
mod damage;
mod free_lists;
