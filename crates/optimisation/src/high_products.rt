// Upper words of products: straight code in which the upper word of the product of two words is an operator, where it
// was made of the products of their halves, since the language has no sign for it. The code may stand in the place of
// the code that it is made of: the outcome is the same, and what is public stays public. Stands on `inline` and
// `branch_removal`.
//
// One expression is looked for, between any two variables: that in `specs/high_products/private/Shapes.antt`, as it
// comes of the procedure that docs/COOKBOOK.md shows.

mod finding;
mod replacing;
mod shapes;
mod terms;

pub use replacing::high_products;
