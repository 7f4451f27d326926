mod calls;
mod drops;
mod falling;
mod links;
mod pairs;
mod rows;
mod two_values;
mod values;
