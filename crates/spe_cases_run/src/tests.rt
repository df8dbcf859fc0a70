mod commits;
mod failures;
mod files;
mod gates;
mod outside;
mod refusals;
mod replies;
mod run;
