mod bytes;
mod files;
mod full;
mod prepare;
mod read;
mod release;
