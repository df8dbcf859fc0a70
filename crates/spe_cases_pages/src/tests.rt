mod pages;
mod slots;
