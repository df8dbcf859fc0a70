mod journals;
mod records;
mod varints;
