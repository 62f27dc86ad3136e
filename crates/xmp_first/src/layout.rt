// The text of a program without its numbers and its value. Between these pieces stand, in this
// order: the number of cells, the number of nodes, the number of cells twice, the value, and the
// number of cells.

pub const HEAD: &[u8] = b"int a[";

pub const TO_NODES: &[u8] = b"], i, s;\n#pragma xmp nodes p[";

pub const TO_TEMPLATE: &[u8] = b"]\n#pragma xmp template t[";

pub const TO_FIRST_LOOP: &[u8] =
    b"]\n#pragma xmp distribute t[block] onto p\n#pragma xmp align a[k] with t[k]\nint main(void) {\n#pragma xmp loop (i) on t[i]\n  for (i = 0; i < ";

pub const TO_VALUE: &[u8] = b"; i++) a[i] = ";

pub const TO_SECOND_LOOP: &[u8] =
    b";\n#pragma xmp loop (i) on t[i] reduction(+:s)\n  for (i = 0; i < ";

pub const FOOT: &[u8] =
    b"; i++) s += a[i];\n#pragma xmp task on p[0]\n  printf(\"%d\\n\", s);\n  return 0;\n}\n";
