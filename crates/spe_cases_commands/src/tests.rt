mod files;
mod prepare;
mod real;
mod release;
mod run;
