mod objects;
mod outputs;
mod sessions;
