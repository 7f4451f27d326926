mod pointers;
mod programs;
mod rows;
mod streams;
mod table;
mod tickets;
