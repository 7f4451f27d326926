mod kit;
mod pointers;
mod stacks;
