// The canonical file row by row, and its length as it grows. No code.
