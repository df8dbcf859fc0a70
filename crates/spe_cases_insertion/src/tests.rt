mod deep;
mod leaves;
mod lengths;
mod payloads;
mod reserved;
mod root;
mod sizes;
mod tables;
