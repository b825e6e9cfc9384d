// Lines of a text: their ends, what is skipped, and the blanks between words.

pub const NOTHING: &str = "
|
\n|
capacity 64|
capacity 64\n|
\n\n#\ncapacity 63 = line 4: cause 3|
capacity 64\n\ncapacity 64\ncapacity 63\n = line 3: cause 4|";

pub const BLANKS: &str = "
\r = line 1: cause 1|
capacity\t64 = line 1: cause 1|
\tcapacity 64 = line 1: cause 1|
\x20 = line 1: cause 1|
capacity  64 = line 1: cause 2|
capacity 64  = line 1: cause 2|
provider ABC  = line 1: cause 2|
capacity 64\r\n = line 1: cause 3|
capacity 64\t = line 1: cause 3|
capacity  = line 1: cause 3|
provider A\tB = line 1: cause 3|
provider ABC\r = line 1: cause 3|
versions 4  = line 1: cause 3|
versions  4 = line 1: cause 3|
versions 4 5 6 7  = line 1: cause 2|";
