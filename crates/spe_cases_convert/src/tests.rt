mod blind;
mod files;
mod rewriting;
