// No code: definitions in specs/ and theorems in proofs/ about the table's bytes.
// SoundLaws: bytes are read as an image exactly where they are a sound table, and the image is the only one.
// WellFormedLaid: the table of a well-formed image is read back, whatever is after it; how long it is.
// ImageOnly: only the table of a well-formed image is read as that image.
// TableBytes, ImageBytes: every element of a table is a byte.
// QuestionLaws: the parts that name-of and entry answer hold the name and the record.
#![tactic(auto)]
