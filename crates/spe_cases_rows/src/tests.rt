mod files;
mod journals;
mod outside;
mod real;
mod rows;
mod run;
